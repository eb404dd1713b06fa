// What a line of the output is made of.
use reply::Reply;
use std::fmt;

// The number and its values; type, code, and pointer or interface of the SCMP error, if there is one.
#[derive(Clone, Copy)]
pub(crate) struct Answer(pub(crate) Reply);

impl fmt::Display for Answer {
    fn fmt<W: fmt::Write>(&self, f: &mut fmt::Formatter<W>) -> fmt::Result {
        let reply = self.0;
        write!(f, "{}", reply.number)?;
        for value in reply.values.into_iter().take(usize::from(reply.count)) {
            write!(f, " {value}")?;
        }
        if reply.kind == 0 {
            return Ok(());
        }
        write!(f, ", SCMP {} {} {}", reply.kind, reply.code, reply.pointer)
    }
}

// The bytes that differ from those before, each with its place.
#[derive(Clone, Copy)]
pub(crate) struct Left<'a> {
    pub(crate) before: &'a [u8],
    pub(crate) after: &'a [u8],
}

impl fmt::Display for Left<'_> {
    fn fmt<W: fmt::Write>(&self, f: &mut fmt::Formatter<W>) -> fmt::Result {
        for (at, (before, after)) in self.before.iter().zip(self.after).enumerate() {
            if before != after {
                write!(f, " {at}={after:02x}")?;
            }
        }
        Ok(())
    }
}
