//! What is printed and put, byte by byte.

use fragment_ops::Cell;
use gl_words::Call;
use replay_text::{Status, Text, exit_code, frame_name, image_name, ppm, ppm_of_cells};
use script_reader::{Limit, Name, ScriptError, ScriptFault};
use std::test::Fail;

#[test]
fn each_call_appends_one_line(rt: HostRuntime) -> Result<(), Fail> {
    let mut text = Text::new(rt.alloc());
    text.plain("glreport 1")?;
    let rows = [
        (4, 0, Call::GetError, [].as_slice()),
        (4294967295, 3, Call::Finish, [0, 65536, -1].as_slice()),
    ];
    for (line, context, call, given) in &rows {
        text.answer(*line, *context, call, *given)?;
    }
    text.counts(2, &[1, 20, 0, 18446744073709551615])?;
    text.number("images", 3)?;
    text.plain("end")?;
    assert_eq!(rt;
        text.bytes(),
        b"glreport 1\n4 0 GetError\n4294967295 3 Finish 0 65536 -1\ncounts 2 1 20 0 18446744073709551615\nimages 3\nend\n".as_slice()
    );
    Ok(())
}

/// A cell of a colour.
fn cell(colour: [u8; 4]) -> Cell {
    Cell { colour, depth: 0 }
}

// PPM has the highest row first.
#[test]
fn an_image_has_its_rows_from_the_top(rt: HostRuntime) -> Result<(), Fail> {
    let bytes = [1, 2, 3, 4, 5, 6, 7, 8];
    let wide = ppm(rt.alloc(), 2, 1, bytes.as_slice())?;
    assert_eq!(rt;
        wide.as_slice(),
        b"P6\n2 1\n255\n\x01\x02\x03\x05\x06\x07".as_slice()
    );
    let high = ppm(rt.alloc(), 1, 2, bytes.as_slice())?;
    assert_eq!(rt;
        high.as_slice(),
        b"P6\n1 2\n255\n\x05\x06\x07\x01\x02\x03".as_slice()
    );
    let image = ppm_of_cells(rt.alloc(), 1, 2, &[cell([1, 2, 3, 4]), cell([5, 6, 7, 8])])?;
    assert_eq!(rt;
        image.as_slice(),
        b"P6\n1 2\n255\n\x05\x06\x07\x01\x02\x03".as_slice()
    );
    Ok(())
}

#[test]
fn images_have_their_names(rt: HostRuntime) -> Result<(), Fail> {
    let name = frame_name(rt.alloc(), 3)?;
    assert_eq!(rt; name.as_str(), "frame-3.ppm");
    let Some(second) = Name::from_word(b"second_1-A".as_slice()) else {
        panic!(rt; "the word is no name")
    };
    let name = image_name(rt.alloc(), &second)?;
    assert_eq!(rt; name.as_str(), "image-second_1-A.ppm");
    Ok(())
}

#[test]
fn each_status_has_its_number_and_its_text(rt: HostRuntime) -> Result<(), Fail> {
    let error = ScriptError {
        line: 7,
        fault: ScriptFault::BadNumber,
    };
    let full = ScriptError {
        line: 262145,
        fault: ScriptFault::TooMany(Limit::Lines),
    };
    let rows = [
        (Status::Ok, 0, "glreplay: done"),
        (Status::BadWords, 2, "glreplay: bad words"),
        (Status::ReadFault, 3, "glreplay: read fault"),
        (Status::BadScript(error), 4, "glreplay: line 7: BadNumber"),
        (
            Status::BadScript(full),
            4,
            "glreplay: line 262145: TooMany Lines",
        ),
        (
            Status::ShelfFault { stored: 12 },
            5,
            "glreplay: shelf fault after 12 images",
        ),
        (Status::WriteFault, 6, "glreplay: write fault"),
        (Status::NoMemory, 7, "glreplay: no memory"),
    ];
    for (status, code, text) in &rows {
        assert_eq!(rt; exit_code(status), *code);
        let line = format!(in rt.alloc(); "{status}")?;
        assert_eq!(rt; line.as_str(), *text);
    }
    Ok(())
}
