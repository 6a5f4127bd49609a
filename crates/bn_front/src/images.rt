//! The image of a run, and with it all that the run's files come to.
ghost use Rattle.std.specs.Prelude.{◌≡◌, ◌*◌, ◌≤◌, IfOk, Some, false, string_bytes};
ghost use Rattle.bn_model.specs.WholeRuns.{image_in};
ghost use Rattle.bn_front.specs.Meant.{IsInRange, own_meant};
ghost use Rattle.bn_front.specs.Reading.{Fills, Fit, Judges, ReadsRun, image_meant};

use crate::RunOrder;
use crate::inputs::Inputs;
use crate::named_file::NamedFile;
use crate::refusal::Refusal;
use crate::scripts::read_script;
use bn_edge::Desk;
use bn_loader::{LoadError, Loaded, load};
use std::alloc::Global;

/// An image file has at most so many bytes.
const MOST_IMAGE_BYTES: usize = 33_554_432;

/// Reads and judges the files of a run: the image's, and then the script's, where one is named. The
/// first test that fails decides. Memory may come in place of every other answer.
pub fn read_inputs<D: Desk>(
    alloc: Global,
    order: &RunOrder,
    desk: &mut D,
) -> Result<Inputs, Refusal>
    requires { IsInRange (own_meant order.now) }
    ensures reads { ReadsRun (own_meant order.now) result
        (D.account desk.old) (D.account desk.new) }
    ensures fit { IfOk result (λ inputs. Fit (own_meant order.now) inputs) }
{
    // One byte more than an image may have, so that a longer file is known.
    let file = match desk.read_front(alloc, &order.image, MOST_IMAGE_BYTES + 1) {
        Ok(file) => file,
        Err(fault) => return Err(Refusal::of_file(NamedFile::Image, fault)),
    };
    let image = match load_image(alloc, &file, order.ram_pages) {
        Ok(image) => image,
        Err(refusal) => return Err(refusal),
    };
    match read_script(alloc, order, &file, desk) {
        Ok(script) => Ok(Inputs { image, script }),
        Err(refusal) => Err(refusal),
    }
}

/// The image of a file.
pub fn load_image(alloc: Global, file: &[u8], ram_pages: u32) -> Result<Loaded, Refusal>
    requires least { 16 ≤ ram_pages }
    requires most { ram_pages ≤ 4096 }
    ensures image { Judges (λ image. image_meant image)
        (image_in (4096 * ram_pages) (Some file.now)) result }
    ensures fills { IfOk result (λ image. Fills ram_pages image) }
{
    match load(alloc, file, ram_pages) {
        Ok(image) => Ok(image),
        Err(LoadError::Fault(fault)) => Err(Refusal::Image(fault)),
        Err(LoadError::Memory) => Err(Refusal::Memory),
    }
}
