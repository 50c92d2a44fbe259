// A line of a text, without its end, and its number from 1.
#[derive(Clone, Copy)]
pub struct Line<'a> {
    pub text: &'a [u8],
    pub number: u32,
}
