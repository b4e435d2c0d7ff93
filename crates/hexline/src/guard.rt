// A guard over the caller's row.
ghost use Rattle.std.specs.Prelude.{◌≡◌};
ghost use Rattle.hexline.specs.Rows.{cleared};

// At its end, on every way out, each byte of the row from `kept` on is zero.
pub struct RowGuard<'a> {
    pub row: &'a mut [u8],
    pub kept: usize,
}

impl Drop for RowGuard<'_> {
    fn drop(self)
        ensures { self.exit.0.now ≡ cleared self.entry.kept self.entry.row.now }
    {
        let RowGuard { row, kept } = self;
        let kept = kept.min(row.len());
        row[kept..].fill(0);
    }
}
