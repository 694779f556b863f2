// The reader of a journal: the bytes that it was lent, and where it stands in them.
ghost use Rattle.std.specs.Prelude.{◌≤◌, length};

#[derive(Drop)]
pub struct Reader<'a> {
    pub(crate) journal: &'a [u8],
    pub(crate) position: usize,
    pub(crate) records: usize,
    ghost within: { position ≤ length journal.now },
    ghost few: { records ≤ position },
}
