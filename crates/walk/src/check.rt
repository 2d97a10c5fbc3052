// What the checks after a walk leave of it, as the definitions say it. Code has the same in the words of an end.
use attributes::Attributes;

// What one stage makes of its input.
#[derive(Clone, Copy)]
pub struct Output {
    pub address: u64,
    pub attributes: Attributes,
    pub level: u64,
}
