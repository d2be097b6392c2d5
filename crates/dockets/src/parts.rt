// A line where it stands.

// A line as a part of the docket that it stands in, with its place there.
#[derive(Clone, Copy, Debug, PartialEq, Eq)]
pub struct Part<'a> {
    pub place: usize,
    pub bytes: &'a [u8],
}
