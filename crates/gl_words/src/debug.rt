//! How a call is printed: as a script spells it, in decimal numbers.

use crate::arguments::arguments_of;
use crate::call::Call;
use crate::table::call_name;
use std::fmt;

impl fmt::Debug for Call {
    fn fmt<W: fmt::Write>(&self, f: &mut fmt::Formatter<W>) -> fmt::Result {
        f.write_str(call_name(self))?;
        let arguments = arguments_of(self);
        for number in arguments.as_slice() {
            write!(f, " {number}")?;
        }
        Ok(())
    }
}
