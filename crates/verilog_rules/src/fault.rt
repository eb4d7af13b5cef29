//! What is wrong with a text that denotes no net.

/// The rule that a text breaks. A text is refused by the first of these in the order V01, V02, V06, V03, V04, V05.
#[derive(Clone, Copy, Debug, PartialEq, Eq)]
pub enum VCode {
    /// No token begins there.
    V01,
    /// The tokens up to there begin no text.
    V02,
    /// A name is unknown, declared twice, or not of its form.
    V03,
    /// Widths or literals don't agree.
    V04,
    /// A wire or an output has no driver, or two.
    V05,
    /// A limit is passed.
    V06,
}

/// The rule that a text breaks, and the least place at which it does.
#[derive(Clone, Copy, Debug, PartialEq, Eq)]
pub struct VFault {
    pub code: VCode,
    pub at: usize,
}
