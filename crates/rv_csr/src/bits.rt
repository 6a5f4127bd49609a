ghost use Rattle.std.specs.Prelude.{◌≡◌, ◌<◌};
ghost use Rattle.bn_model.specs.Bits.{flag, is_set};
ghost use Rattle.bn_model.specs.CsrFile.{interrupt_bits, without_low_bits};

/// Whether the bit at a place below 64 is set.
pub fn is_set(value: u64, place: u8) -> bool
    requires { place < 64 }
    ensures { result ≡ is_set value place }
{
    (value >> place) % 2 == 1
}

/// A flag at a place below 64.
pub fn flag(place: u8, set: bool) -> u64
    requires { place < 64 }
    ensures { result ≡ flag place set }
{
    u64::from(set) << place
}

/// The number with bits 1:0 cleared.
pub fn without_low_bits(value: u64) -> u64
    ensures { result ≡ without_low_bits value }
{
    value - value % 4
}

/// Three interrupts in the places that they have in `sie` and `sip`.
pub fn interrupt_bits(software: bool, timer: bool, external: bool) -> u64
    ensures { result ≡ interrupt_bits software timer external }
{
    flag(1, software) + flag(5, timer) + flag(9, external)
}
