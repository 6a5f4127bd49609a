//! The whole that is generated.
ghost use Rattle.std.specs.Prelude.{◌≡◌, ◌++◌, ◌*◌, IfOk, OnOk, length};
ghost use Rattle.bn_model.specs.Generating as flat;
ghost use Rattle.bn_model.specs.Scripts.{script_in, script_of};
ghost use Rattle.bn_model.specs.Summaries.{raw_image};
ghost use Rattle.bn_model.specs.WholeRuns.{image_in};
ghost use Rattle.bn_gen.specs.Parts as parts;

use crate::Made;
use crate::bytes::{PAGE_BYTES, fill_page, put_zeros};
use crate::kernel::{put_handler, put_kernel};
use crate::modules::{put_modules, put_segments};
use crate::script::put_rounds;
use crate::stream::Stream;
use bn_types::NoMemory;
use std::alloc::{AllocError, Global};

/// Makes the image and the script of a number, the same whenever they are made. The image is raw,
/// of 32 pages of 4,096 bytes, for a machine of one hart and 64 pages of RAM. NoMemory is want of
/// memory.
pub fn make(alloc: Global, number: u64) -> Result<Made, NoMemory>
    ensures image { IfOk result (λ made. made.image.items ≡ (flat.made_of number).image) }
    ensures script { IfOk result (λ made. made.script.items
        ≡ flat.script_text (flat.made_of number)) }
    ensures read { IfOk result (λ made. script_in 1 made.script.items
        ≡ Ok (script_of 1 (flat.made_of number).commands)) }
    ensures size { IfOk result (λ made. length made.image.items ≡ 131072) }
    ensures loaded { IfOk result (λ made. image_in (64 * 4096) (Some made.image.items)
        ≡ Ok (raw_image (64 * 4096) (flat.made_of number).image)) }
{
    match made_of(alloc, number) {
        Ok(made) => Ok(made),
        Err(_) => Err(NoMemory),
    }
}

/// The modules are drawn before the kernel, though they stand behind it.
fn made_of(alloc: Global, number: u64) -> Result<Made, AllocError>
    ensures image { IfOk result (λ made. made.image.items ≡ (flat.made_of number).image) }
    ensures script { IfOk result (λ made. made.script.items
        ≡ flat.script_text (flat.made_of number)) }
    ensures read { IfOk result (λ made. script_in 1 made.script.items
        ≡ Ok (script_of 1 (flat.made_of number).commands)) }
    ensures size { IfOk result (λ made. length made.image.items ≡ 131072) }
    ensures loaded { IfOk result (λ made. image_in (64 * 4096) (Some made.image.items)
        ≡ Ok (raw_image (64 * 4096) (flat.made_of number).image)) }
{
    let mut stream = Stream::of(number);
    let mut modules = Vec::new(alloc);
    put_modules(alloc, &mut modules, &mut stream)?;
    let mut image = kernel_page(alloc, &mut stream)?;
    put_handler_page(alloc, &mut image)?;
    put_zeros(&mut image, 6 * PAGE_BYTES)?;
    put_segments(alloc, &mut image)?;
    image.extend_from_slice(modules.as_slice())?;
    let mut script = Vec::new(alloc);
    put_rounds(&mut script, &mut stream)?;
    Ok(Made { image, script })
}

fn kernel_page(alloc: Global, stream: &mut Stream) -> Result<Vec<u8>, AllocError>
    ensures bytes { IfOk result (λ page. page.items
        ≡ parts.filled (parts.listed (parts.kernel (flat.kernel_calls 0 64 stream.old).value))) }
    ensures state { OnOk result (stream.new ≡ (flat.kernel_calls 0 64 stream.old).state) }
{
    let mut page = Vec::new(alloc);
    put_kernel(&mut page, stream)?;
    fill_page(&mut page)?;
    Ok(page)
}

fn put_handler_page(alloc: Global, image: &mut Vec<u8>) -> Result<(), AllocError>
    ensures { OnOk result (image.new.items
        ≡ image.old.items ++ parts.filled (parts.listed flat.handler)) }
{
    let mut page = Vec::new(alloc);
    put_handler(&mut page)?;
    fill_page(&mut page)?;
    image.extend_from_slice(page.as_slice())
}
