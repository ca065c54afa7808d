//! A call as a script spells it, with names for numbers where the table of names has them. A script that is made of what is
//! printed says the same, but for the bits of Clear.

use crate::names::NumberNames;
use gl_words::{ArgKind, Call, GlError, arguments_of, row_of};
use itoa::Buffer;
use std::alloc::AllocError as NoMemory;
use std::fmt;
use std::fmt::Write;

/// The name of an error, with the prefix left out (section 2.5); own.
pub fn error_name(error: GlError) -> &'static str {
    match error {
        GlError::InvalidEnum => "INVALID_ENUM",
        GlError::InvalidValue => "INVALID_VALUE",
        GlError::InvalidOperation => "INVALID_OPERATION",
        GlError::StackOverflow => "STACK_OVERFLOW",
        GlError::StackUnderflow => "STACK_UNDERFLOW",
        GlError::OutOfMemory => "OUT_OF_MEMORY",
    }
}

/// Writes how many of something there are, of one without the plural's `s`; own.
pub fn write_count<W: fmt::Write>(
    f: &mut fmt::Formatter<W>,
    count: u64,
    noun: &str,
) -> fmt::Result {
    let plural = if count == 1 { "" } else { "s" };
    write!(f, "{count} {noun}{plural}")
}

/// The bits of the depth, the stencil and the colour buffer in the mask of Clear (section 4.2.3).
const BITS: [u32; 3] = [0x0100, 0x0400, 0x4000];

/// Appends a call. NoMemory may leave some of it.
pub(crate) fn append_call(
    text: &mut String,
    call: &Call,
    names: &NumberNames,
) -> Result<(), NoMemory> {
    let row = row_of(call);
    text.push_str(row.name)?;
    if let Call::Clear { mask } = call {
        text.push_str(" ")?;
        return append_bits(text, *mask, names);
    }
    let arguments = arguments_of(call);
    let signed = signed_enumerant(call);
    let mut digits = Buffer::new();
    for at in 0..row.kinds.len() {
        let (Some(kind), Some(number)) = (row.kinds.get(at), arguments.as_slice().get(at)) else {
            break;
        };
        text.push_str(" ")?;
        if matches!(kind, ArgKind::Enum) {
            append_enumerant(text, row.name, *number, names)?;
        } else if signed == Some(at) {
            append_signed(text, row.name, *number, names)?;
        } else {
            text.push_str(digits.format(*number))?;
        }
    }
    Ok(())
}

/// Appends the name of an enumerant, or else its number in hexadecimal digits.
fn append_enumerant(
    text: &mut String,
    call: &str,
    number: i64,
    names: &NumberNames,
) -> Result<(), NoMemory> {
    match names.name_for(call, number) {
        Some(name) => text.push_str(name),
        None => write!(text, "{number:#06x}"),
    }
}

/// Appends the name of an enumerant that is a signed number, or else the number.
fn append_signed(
    text: &mut String,
    call: &str,
    number: i64,
    names: &NumberNames,
) -> Result<(), NoMemory> {
    match names.name_for(call, number) {
        Some(name) => text.push_str(name),
        None => write!(text, "{number}"),
    }
}

/// The place, from 0, of the argument of a call that is an enumerant as a signed number (sections 3.7.1, 3.7.4 and 3.7.12).
fn signed_enumerant(call: &Call) -> Option<usize> {
    match call {
        Call::TexEnvi { .. } | Call::TexImage2D { .. } | Call::TexParameteri { .. } => Some(2),
        _ => None,
    }
}

/// Appends the bits of Clear by their names, and what is left over as a number.
fn append_bits(text: &mut String, mask: u32, names: &NumberNames) -> Result<(), NoMemory> {
    let mut left = mask;
    let mut between = "";
    for bit in BITS {
        if left & bit != 0 {
            if let Some(name) = names.name_for("Clear", i64::from(bit)) {
                text.push_str(between)?;
                text.push_str(name)?;
                between = "|";
                left &= !bit;
            }
        }
    }
    if left != 0 || mask == 0 {
        text.push_str(between)?;
        write!(text, "{left:#x}")?;
    }
    Ok(())
}
