// What a program prints.
use calls::Answer;
use std::{fmt, io};

// A line that says how many.
pub fn line(rt: &impl Print, name: &str, n: u64) -> io::Result<()> {
    println!(rt; "{name} {n}")
}

// An answer in document 01's words.
#[derive(Clone, Copy)]
pub struct Told(pub Answer);

impl fmt::Display for Told {
    fn fmt<W: fmt::Write>(&self, f: &mut fmt::Formatter<W>) -> fmt::Result {
        match self.0 {
            Answer::Started => write!(f, "started"),
            Answer::Complete => write!(f, "complete"),
            Answer::Paused => write!(f, "paused"),
            Answer::Refused(why) => {
                let number = calls::number_of(why);
                write!(f, "refused {number}")?;
                let value = calls::value_of(why);
                if 0 < value {
                    write!(f, " place {value}")?;
                }
                Ok(())
            }
        }
    }
}

// The rows of a list, a space before each number and a comma between two rows.
pub fn rows(rt: &impl Print, list: &[u32], q: usize) -> io::Result<()> {
    for (i, x) in list.iter().enumerate() {
        if 0 < q && 0 < i && i % q == 0 {
            print!(rt; ",")?;
        }
        print!(rt; " {x}")?;
    }
    Ok(())
}
