use crate::key::SetKey;
use key_class::Key;
use std::fmt;

impl fmt::Display for SetKey {
    fn fmt<W: fmt::Write>(&self, f: &mut fmt::Formatter<W>) -> fmt::Result {
        f.write_str("members")?;
        // By word and bit, which make the member's number.
        for (place, word) in self.squeeze().iter().enumerate() {
            for bit in 0..32usize {
                if (*word >> bit) & 1 == 1 {
                    let member = 32 * place + bit;
                    write!(f, " {member}")?;
                }
            }
        }
        Ok(())
    }
}
