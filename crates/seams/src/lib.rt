// What mending a floor answers: a number, a place, and how many bytes were written to the output and to the list, both 0 on refusal.
#![tactic(auto)]

#[repr(C)]
#[derive(Clone, Copy)]
pub struct Mended {
    pub number: u32,
    pub place: u32,
    pub length: u32,
    pub listed: u32,
}
