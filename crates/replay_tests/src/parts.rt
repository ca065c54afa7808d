//! What is printed and put of what lines told. The results are given, by contexts other than the first.

use gl_front::Counts;
use gl_memory::{ClientMemory, Numbers};
use gl_objects::Objects;
use gl_words::Call;
use replay_core::{direct_report, frame_file, report};
use replay_lines::{Done, Printed, Results, What, image_of};
use script_reader::Name;
use soft_driver::Soft;
use std::test::Fail;

#[test]
fn an_answer_is_one_line_with_all_its_numbers(rt: HostRuntime) -> Result<(), Fail> {
    let alloc = rt.alloc();
    let memory = ClientMemory::new(alloc, 4)?;
    let Some(name) = Name::from_word(b"shot".as_slice()) else {
        panic!(rt; "it is a name")
    };
    let mut numbers = Numbers::new(alloc, 3)?;
    numbers.push(0);
    numbers.push(65536);
    numbers.push(-1);
    let mut results = Results::new(alloc);
    results.push(Done {
        number: 4,
        context: 2,
        what: What::Answer {
            call: Call::GetError,
            numbers: Printed::Nothing,
        },
    })?;
    results.push(Done {
        number: 5,
        context: 2,
        what: image_of(alloc, &memory, &name, 1, 1, 0)?,
    })?;
    results.push(Done {
        number: 6,
        context: 3,
        what: What::Answer {
            call: Call::GetFixedv {
                pname: 0x0BA0,
                params: 0,
            },
            numbers: Printed::Many(numbers),
        },
    })?;
    let counts = Counts {
        deferred: 1,
        synchronised: 2,
        answered: 3,
        batches: 4,
    };
    let text = report(alloc, 2, &results, &counts, 3)?;
    assert_eq!(rt;
        text.bytes(),
        b"glreport 1\n4 2 GetError\n6 3 GetFixedv 0 65536 -1\ncounts 2 1 2 3 4\nimages 3\nend\n".as_slice()
    );
    let text = direct_report(alloc, &results, 3)?;
    assert_eq!(rt;
        text.bytes(),
        b"glreport 1\n4 2 GetError\n6 3 GetFixedv 0 65536 -1\nimages 3\nend\n".as_slice()
    );
    Ok(())
}

#[test]
fn a_frame_has_the_number_of_its_context(rt: HostRuntime) -> Result<(), Fail> {
    let frame = match Soft::new(rt.alloc(), 3, 1, 2, Objects::new(rt.alloc())) {
        Ok(soft) => soft.into_parts().0,
        Err((_objects, refused)) => return Err(refused.into()),
    };
    let file = frame_file(rt.alloc(), 3, &frame)?;
    assert_eq!(rt; file.name(), "frame-3.ppm");
    assert_eq!(rt; file.bytes(), b"P6\n1 2\n255\n\0\0\0\0\0\0".as_slice());
    Ok(())
}
