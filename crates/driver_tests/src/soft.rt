//! The driver through its bound, and the laws at it. Values are those of another program, and names stand as their numbers.

ghost use Rattle.std.specs.Prelude.{◌<◌};
ghost use Rattle.fragment_ops.specs.Frame.{AreSides};

use driver_trait::laws::{answers_law, follows_law, reads_alone_law, replies_law};
use driver_trait::{Driver, Recorder, Reply};
use gl_memory::ClientMemory;
use gl_objects::Objects;
use gl_words::{Call, call_from, call_id, shape_of_name};
use soft_driver::Soft;
use std::alloc::{AllocError as NoMemory, Global};
use std::sync::Wait;
use std::test::Fail;
use std::thread::Threads;

/// A context of this number and these sides, beside objects of its own.
pub(crate) fn new_soft(
    alloc: Global,
    context: u32,
    width: u32,
    height: u32,
) -> Result<Soft, NoMemory>
    requires context { context < 4 }
    requires sides { AreSides width height }
{
    match Soft::new(alloc, context, width, height, Objects::new(alloc)) {
        Ok(soft) => Ok(soft),
        Err((_, refused)) => Err(refused),
    }
}

/// The number that is replied, or -1 where it is none or a list.
fn told(reply: &Reply) -> i64 {
    match reply {
        Reply::One(number) => *number,
        _ => -1,
    }
}

/// Carries a call out on client memory, by whichever driver, and gives the number that it replies.
fn number<T: Threads + Sync, D: Driver>(
    rt: &T,
    alloc: Global,
    driver: &mut D,
    call: &Call,
) -> Result<i64, NoMemory> {
    let memory = ClientMemory::new(alloc, 16)?;
    reads_alone_law(driver);
    follows_law(driver);
    answers_law(driver);
    replies_law(driver);
    Ok(told(&driver.call(rt, call, &memory)?))
}

/// The same by the form of the call that may wait.
fn number_by_waiting<T: Threads + Sync, W: Wait, D: driver_trait::WaitDriver>(
    rt: &T,
    wait: &W,
    alloc: Global,
    driver: &mut D,
    call: &Call,
) -> Result<i64, NoMemory> {
    let memory = ClientMemory::new(alloc, 16)?;
    Ok(told(&driver.call(rt, wait, call, &memory)?))
}

#[test]
fn the_call_that_may_wait_replies_as_the_other(rt: HostRuntime) -> Result<(), Fail> {
    let mut soft = new_soft(rt.alloc(), 0, 1, 1)?;
    let mut recorder = Recorder::new(rt.alloc());
    let rows = [
        (Call::Clear { mask: 16384 }, -1),
        (
            Call::GetIntegerv {
                pname: 2976,
                params: 0,
            },
            5888,
        ),
    ];
    for (call, replied) in rows {
        let number = number_by_waiting(&rt, &rt, rt.alloc(), &mut soft, &call)?;
        assert_eq!(rt; number, replied);
        let number = number_by_waiting(&rt, &rt, rt.alloc(), &mut recorder, &call)?;
        assert_eq!(rt; number, replied);
    }
    Ok(())
}

#[test]
fn the_laws_hold_of_both_drivers(rt: HostRuntime) -> Result<(), Fail> {
    let mut soft = new_soft(rt.alloc(), 3, 256, 256)?;
    let mut recorder = Recorder::new(rt.alloc());
    assert_eq!(rt; number(&rt, rt.alloc(), &mut soft, &Call::GetError)?, 0);
    assert_eq!(rt;
        number(&rt, rt.alloc(), &mut recorder, &Call::GetError)?,
        -1
    );
    Ok(())
}

/// A call of each kind in the order of their numbers, each without an error, and the number that it replies, or -1.
const KINDS: &str = "\
ActiveTexture 33985 : -1
AlphaFuncx 519 0 : -1
BindBuffer 34962 1 : -1
BindTexture 3553 1 : -1
BlendFunc 770 771 : -1
BufferData 34962 4 0 35044 : -1
BufferSubData 34962 0 4 0 : -1
Clear 16384 : -1
ClearColorx 65536 0 0 65536 : -1
ClearDepthx 65536 : -1
ClientActiveTexture 33985 : -1
Color4x 65536 0 0 65536 : -1
ColorMask 1 1 1 1 : -1
ColorPointer 4 5121 0 0 : -1
CullFace 1029 : -1
DeleteBuffers 1 0 : -1
DeleteTextures 1 0 : -1
DepthFunc 515 : -1
DepthMask 1 : -1
DepthRangex 0 65536 : -1
Disable 2884 : -1
DisableClientState 32884 : -1
DrawArrays 4 0 0 : -1
DrawElements 4 0 5121 0 : -1
Enable 2929 : -1
EnableClientState 32884 : -1
Finish : -1
Flush : -1
FrontFace 2305 : -1
Frustumx -65536 65536 -65536 65536 65536 131072 : -1
GenBuffers 1 0 : -1
GenTextures 1 0 : -1
GetError : 0
GetFixedv 2982 0 : -1
GetIntegerv 2976 0 : 5888
GetPointerv 32910 0 : 0
IsBuffer 1 : 1
IsEnabled 32884 : 1
IsTexture 1 : 1
LoadIdentity : -1
LoadMatrixx 0 : -1
MatrixMode 5888 : -1
MultMatrixx 0 : -1
MultiTexCoord4x 33985 0 0 0 65536 : -1
Normal3x 0 0 65536 : -1
NormalPointer 5120 0 0 : -1
Orthox -65536 65536 -65536 65536 -65536 65536 : -1
PixelStorei 3333 1 : -1
PopMatrix : -1
PushMatrix : -1
ReadPixels 0 0 1 1 6408 5121 0 : -1
Rotatex 5898240 0 0 65536 : -1
Scalex 65536 65536 65536 : -1
Scissor 0 0 2 2 : -1
ShadeModel 7424 : -1
TexCoordPointer 2 5122 0 0 : -1
TexEnvi 8960 8704 7681 : -1
TexEnvxv 8960 8705 0 : -1
TexImage2D 3553 0 6408 1 1 0 6408 5121 0 : -1
TexParameteri 3553 10241 9728 : -1
TexSubImage2D 3553 0 0 0 1 1 6408 5121 0 : -1
Translatex 1 2 3 : -1
VertexPointer 3 5132 0 0 : -1
Viewport 0 0 2 2 : -1
";

/// The call that a name and integers spell, if there is one.
pub(crate) fn call_spelled(spelling: &str) -> Option<Call> {
    let mut words = spelling.split_whitespace();
    let shape = shape_of_name(words.next()?)?;
    let mut numbers = [0_i64; 9];
    let mut count = 0_usize;
    for word in words {
        if count >= 9 {
            return None;
        }
        numbers[count] = word.parse::<i64>().ok()?;
        count += 1;
    }
    call_from(shape.id, numbers.get(..count)?)
}

// The calls come after a matrix was pushed; then two errors. 1281 is INVALID_VALUE.
#[test]
fn a_call_of_each_kind_is_carried_out(rt: HostRuntime) -> Result<(), Fail> {
    let mut soft = new_soft(rt.alloc(), 0, 2, 2)?;
    assert_eq!(rt; number(&rt, rt.alloc(), &mut soft, &Call::PushMatrix)?, -1);
    let mut last = 0;
    for row in KINDS.lines() {
        let Some((spelling, reply)) = row.split_once(" : ") else {
            return Err(Fail::new("no such row"));
        };
        let Some(call) = call_spelled(spelling) else {
            return Err(Fail::new("no such call"));
        };
        assert!(rt; last < call_id(&call));
        last = call_id(&call);
        let replied = number(&rt, rt.alloc(), &mut soft, &call)?;
        assert_eq!(rt; reply.parse::<i64>().ok(), Some(replied));
    }
    let errors = [
        (Call::Clear { mask: 1 }, -1),
        (Call::MatrixMode { mode: 1 }, -1),
        (Call::GetError, 1281),
        (Call::GetError, 0),
    ];
    for (call, replied) in &errors {
        assert_eq!(rt; number(&rt, rt.alloc(), &mut soft, call)?, *replied);
    }
    Ok(())
}

// 0x4000 is the colour's bit, 0x100 and 0x400 are those of depth and stencil.
#[test]
fn a_clear_gives_each_pixel_the_clear_colour(rt: HostRuntime) -> Result<(), Fail> {
    let rows: [(u32, i32, [u8; 4]); 14] = [
        (0x4000, -1, [0, 0, 255, 255]),
        (0x4000, 0, [0, 0, 255, 255]),
        (0x4000, 128, [0, 0, 255, 255]),
        (0x4000, 129, [1, 0, 255, 255]),
        (0x4000, 32767, [127, 0, 255, 255]),
        (0x4000, 32768, [128, 0, 255, 255]),
        (0x4000, 65407, [254, 0, 255, 255]),
        (0x4000, 65408, [255, 0, 255, 255]),
        (0x4000, 65536, [255, 0, 255, 255]),
        (0x4000, 70000, [255, 0, 255, 255]),
        (0x4500, 65536, [255, 0, 255, 255]),
        (0x0500, 65536, [0, 0, 0, 0]),
        (0x4001, 65536, [0, 0, 0, 0]),
        (0, 65536, [0, 0, 0, 0]),
    ];
    for (mask, red, pixel) in rows {
        let mut soft = new_soft(rt.alloc(), 0, 3, 2)?;
        let colour = Call::ClearColorx {
            red,
            green: 0,
            blue: 65536,
            alpha: 65536,
        };
        number(&rt, rt.alloc(), &mut soft, &colour)?;
        number(&rt, rt.alloc(), &mut soft, &Call::Clear { mask })?;
        let frame = soft.into_parts().0;
        assert_eq!(rt; (frame.width(), frame.height()), (3, 2));
        assert_eq!(rt; frame.cells().len(), 6);
        for cell in frame.cells() {
            assert_eq!(rt; cell.colour, pixel);
        }
    }
    Ok(())
}

#[test]
fn a_context_starts_at_each_side(rt: HostRuntime) -> Result<(), Fail> {
    for side in 1..257u32 {
        let wide = new_soft(rt.alloc(), 0, side, 1)?.into_parts().0;
        let high = new_soft(rt.alloc(), 0, 1, side)?.into_parts().0;
        assert_eq!(rt; (wide.width(), wide.height()), (side, 1));
        assert_eq!(rt; (high.width(), high.height()), (1, side));
        assert_eq!(rt; wide.cells().len(), side as usize);
        assert_eq!(rt; high.cells().len(), side as usize);
    }
    let largest = new_soft(rt.alloc(), 3, 256, 256)?.into_parts().0;
    assert_eq!(rt; largest.cells().len(), 65536);
    Ok(())
}

/// Calls that reply no list, those with an error among them. Two of the draws draw.
const WITHOUT_LISTS: &str = "\
ActiveTexture 33985
AlphaFuncx 519 0
BlendFunc 770 771
Clear 16384
Clear 17664
Clear 1
ClearColorx 65536 0 0 65536
ClearDepthx 65536
ClientActiveTexture 33985
Color4x 65536 0 0 65536
ColorMask 1 1 1 1
ColorPointer 4 5121 0 0
CullFace 1029
DepthFunc 515
DepthMask 1
DepthRangex 0 65536
Disable 2884
DisableClientState 32884
DrawArrays 4 0 3
Enable 3042
BlendFunc 1 1
EnableClientState 32884
VertexPointer 2 5120 0 0
DrawArrays 4 0 3
DrawArrays 7 0 3
Enable 2929
Finish
Flush
FrontFace 2305
Frustumx -65536 65536 -65536 65536 65536 131072
GetError
GetFixedv 2931 0
GetFixedv 2976 0
GetIntegerv 2885 0
GetIntegerv 2976 0
GetPointerv 32910 0
IsEnabled 3024
IsEnabled 32884
LoadIdentity
LoadMatrixx 8
MultMatrixx 8
Color4x 0 65536 0 65536
DrawArrays 4 0 3
MatrixMode 5889
MultMatrixx 0
MultiTexCoord4x 33985 0 0 0 65536
Normal3x 0 0 65536
NormalPointer 5120 0 0
Orthox -65536 65536 -65536 65536 -65536 65536
PixelStorei 3333 1
PopMatrix
PushMatrix
PushMatrix
PushMatrix
ReadPixels 0 0 1 1 6407 5121 0
Rotatex 5898240 0 0 65536
Scalex 65536 65536 65536
Scissor 0 0 2 2
ShadeModel 7424
TexCoordPointer 2 5122 0 0
TexEnvi 8960 8704 7681
TexEnvxv 8960 8705 0
TexParameteri 3553 10241 9728
Translatex 1 2 3
VertexPointer 3 5132 0 0
Viewport 0 0 2 2
";

/// Three corners of two bytes each, from 0, and the unit matrix, from 8.
fn corners_and_a_matrix(alloc: Global) -> Result<ClientMemory, NoMemory> {
    let mut memory = ClientMemory::new(alloc, 72)?;
    memory.write(0, [0xFF, 0xFF, 1, 0xFF, 0xFF, 1].as_slice());
    for at in [10_u64, 30, 50, 70] {
        memory.write(at, [1].as_slice());
    }
    Ok(memory)
}

// Memory is taken for client memory, for the frame, and 63 times at the end. So nothing is refused
// with `--fail-alloc 66`, unless a call takes some, be it only to give it back, or to do without it
// where it is refused. The lower left pixel is the sum of two draws, in red and in green.
#[test]
fn only_a_list_takes_memory(rt: HostRuntime) -> Result<(), Fail> {
    let memory = corners_and_a_matrix(rt.alloc())?;
    let mut soft = new_soft(rt.alloc(), 0, 2, 2)?;
    for spelling in WITHOUT_LISTS.lines() {
        let Some(call) = call_spelled(spelling) else {
            return Err(Fail::new("no such call"));
        };
        let reply = soft.call(&rt, &call, &memory)?;
        assert!(rt; matches!(reply, Reply::Nothing | Reply::One(_)));
    }
    assert_eq!(rt; soft.into_parts().0.pixel(0, 0), [255, 255, 0, 255]);
    for _ in 0..63 {
        vec![in rt.alloc(); 0_u8; 1]?;
    }
    Ok(())
}

/// Bytes of stores up to their limit of 67108864, and a byte more; 2000 bytes of memory; parts up to the end of a store and
/// past it; and as many names as one call may ask for. The number that is replied stands behind the colon, or how many numbers
/// a list has.
const LIMITS: &str = "\
BindBuffer 34962 1 : -1
BufferData 34962 67108864 0 35044 : -1
GetError : 0
BindBuffer 34962 2 : -1
BufferData 34962 1 0 35044 : -1
GetError : 1285
BindBuffer 34962 1 : -1
BufferData 34962 2000 16 35044 : -1
BufferSubData 34962 1 1999 1 : -1
GetError : 0
BufferSubData 34962 2 1999 1 : -1
GetError : 1281
GenBuffers 256 1024 : 256
GetError : 0
IsBuffer 2 : 1
GenTextures 256 1024 : 256
";

#[test]
fn stores_and_names_reach_their_limits(rt: HostRuntime) -> Result<(), Fail> {
    let memory = ClientMemory::new(rt.alloc(), 2048)?;
    let mut soft = new_soft(rt.alloc(), 0, 2, 2)?;
    for row in LIMITS.lines() {
        let Some((spelling, reply)) = row.split_once(" : ") else {
            return Err(Fail::new("no such row"));
        };
        let Some(call) = call_spelled(spelling) else {
            return Err(Fail::new("no such call"));
        };
        let replied = match soft.call(&rt, &call, &memory)? {
            Reply::Numbers(numbers) => numbers.as_slice().len() as i64,
            reply => told(&reply),
        };
        assert_eq!(rt; reply.parse::<i64>().ok(), Some(replied), "{row}");
    }
    Ok(())
}
