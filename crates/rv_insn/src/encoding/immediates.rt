//! The two's complements of the immediates.
ghost use Rattle.std.specs.Prelude.{◌≡◌, ◌^◌, ◌%◌, ◌<◌};
ghost use Rattle.bn_model.specs.InsnRanges.{FitsBits, IsMultipleOf};
ghost use Rattle.bn_model.specs.TwosComplement.{signed_of};

pub fn bits12(immediate: i32) -> u32
    requires { FitsBits 12 immediate }
    ensures fits { result < 2 ^ 12 }
    ensures same { signed_of 12 result ≡ immediate }
{
    if immediate < 0 {
        (immediate + 0x1000) as u32
    } else {
        immediate as u32
    }
}

pub fn bits13(immediate: i32) -> u32
    requires { FitsBits 13 immediate }
    ensures fits { result < 2 ^ 13 }
    ensures same { signed_of 13 result ≡ immediate }
    ensures even { IsMultipleOf 2 immediate → result % 2 ≡ 0 }
{
    if immediate < 0 {
        (immediate + 0x2000) as u32
    } else {
        immediate as u32
    }
}

pub fn bits21(immediate: i32) -> u32
    requires { FitsBits 21 immediate }
    ensures fits { result < 2 ^ 21 }
    ensures same { signed_of 21 result ≡ immediate }
    ensures even { IsMultipleOf 2 immediate → result % 2 ≡ 0 }
{
    if immediate < 0 {
        (immediate + 0x20_0000) as u32
    } else {
        immediate as u32
    }
}

pub fn bits32(immediate: i32) -> u32
    ensures same { signed_of 32 result ≡ immediate }
    ensures upper { IsMultipleOf 4096 immediate → result % 4096 ≡ 0 }
{
    immediate.cast_unsigned()
}
