// How a macroblock was predicted: the cases that document 01's bytes stand for.
#[derive(Clone, Copy, Debug, PartialEq, Eq)]
pub enum IntraYMode {
    Dc,
    V,
    H,
    Tm,
    B,
}

#[derive(Clone, Copy, Debug, PartialEq, Eq)]
pub enum RefFrame {
    Last,
    Golden,
    AltRef,
}

#[derive(Clone, Copy, Debug, PartialEq, Eq)]
pub enum InterMode {
    Zero,
    Nearest,
    Near,
    New,
    Split,
}

// The prediction of one macroblock.
#[derive(Clone, Copy, Debug, PartialEq, Eq)]
pub struct Prediction {
    pub mode: IntraYMode,
    pub reference: Option<RefFrame>,
    pub inter_mode: Option<InterMode>,
}
