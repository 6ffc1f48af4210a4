// The parts of a printed line that have no Display of their own.
use std::fmt;

// Two digits each.
#[derive(Clone, Copy)]
pub(crate) struct Hex<'a>(pub(crate) &'a [u8]);

impl fmt::Display for Hex<'_> {
    fn fmt<W: fmt::Write>(&self, f: &mut fmt::Formatter<W>) -> fmt::Result {
        for byte in self.0 {
            write!(f, " {byte:02x}")?;
        }
        Ok(())
    }
}

// The bit pattern of a float; nothing of a NaN, which no device gives.
#[derive(Clone, Copy)]
pub(crate) struct Pattern(pub(crate) f32);

impl fmt::Display for Pattern {
    fn fmt<W: fmt::Write>(&self, f: &mut fmt::Formatter<W>) -> fmt::Result {
        if self.0.is_nan() {
            return Ok(());
        }
        write!(f, ", {:08x}", self.0.to_bits())
    }
}
