// The bytes of a line, taken one by one.
ghost use Rattle.std.specs.Prelude.{MatchOption};
ghost use Rattle.line.specs.Cursor.{Ended, Takes};

// A place in a line, and no `slice::Iter`: that would raise a pointer and lower a length at each byte, and cost the schedule program 9 % more instructions.
#[derive(Drop)]
pub(crate) struct Cursor<'a> {
    pub(crate) line: &'a [u8],
    // How many bytes have been taken.
    pub(crate) taken: usize,
}

impl<'a> Cursor<'a> {
    // None at the end of the line.
    pub(crate) fn next(&mut self) -> Option<u8>
        ensures { MatchOption result (Ended self.old self.new) (λ byte. Takes self.old byte self.new) }
    {
        if self.taken < self.line.len() {
            let byte = self.line[self.taken];
            self.taken += 1;
            return Some(byte);
        }
        None
    }
}
