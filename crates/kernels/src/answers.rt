// Why a kernel is refused, with its number in document 01.
#[derive(Clone, Copy, Debug, PartialEq, Eq)]
pub enum KernelRefusal {
    NoWindow = 4,
}

impl From<KernelRefusal> for u8 {
    ghost use Rattle.std.specs.Prelude.{◌≡◌};
    ghost use Rattle.kernels.specs.Answers.{kernel_refusal_number};

    ghost from_gives = { λ refusal n. n ≡ kernel_refusal_number refusal };

    fn from(refusal: KernelRefusal) -> u8 {
        refusal as u8
    }
}
