// The moves of an entry as text.
use reader::entry::Entry;
use std::fmt;

// Each move on a line: the point, and by how much it moves.
#[derive(Clone, Copy)]
pub struct MoveLines<'a>(pub Entry<'a>);

impl fmt::Display for MoveLines<'_> {
    fn fmt<W: fmt::Write>(&self, f: &mut fmt::Formatter<W>) -> fmt::Result {
        for m in self.0.moves() {
            writeln!(f, "move {} {} {}", m.point, m.x, m.y)?;
        }
        Ok(())
    }
}
