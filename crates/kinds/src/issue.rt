// A certificate to issue: for an account's device, by the number of the request, until the end second.
#[derive(Clone, Copy, Default, Debug, PartialEq, Eq)]
pub struct Issue {
    pub account: u16,
    pub device: u32,
    pub request: u32,
    pub key_print: u64,
    pub start: u64,
    pub end: u64,
}

pub mod kind;
