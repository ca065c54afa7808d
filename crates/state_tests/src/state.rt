//! Calls carried out on private state, and what it then replies. The proofs speak of each step alone. Names stand as their
//! numbers. What no comment says otherwise of is the value of another program.

use crate::calls::{call_spelled, first_wrong, first_wrong_on, replies};
use gl_memory::ClientMemory;
use gl_objects::Objects;
use gl_state::*;
use gl_words::GlError;
use std::test::Fail;

/// INVALID_ENUM, STACK_OVERFLOW and STACK_UNDERFLOW are 1280, 1283 and 1284; the modes 5889 and 5890 are PROJECTION and
/// TEXTURE, and 5891 is none (section 2.5, and the header of the interface).
const ERRORS: &str = "\
Flush :
GetError : 0
MatrixMode 5891 :
PopMatrix :
GetError : 1280
GetError : 0
PopMatrix :
MatrixMode 5891 :
GetError : 1284
MatrixMode 5889 :
PushMatrix :
GetError : 0
PushMatrix :
GetError : 1283
MatrixMode 5890 :
PushMatrix :
PopMatrix :
GetError : 0
IsEnabled 1 :
GetError : 1280
";

#[test]
fn the_first_error_stays_until_it_is_asked_for(rt: HostRuntime) -> Result<(), Fail> {
    assert_eq!(rt; first_wrong(rt.alloc(), ERRORS)?, None);
    Ok(())
}

/// The values of a new context are those of tables 6.4 to 6.20; LESS is 513.
const FIRST: &str = "\
GetIntegerv 2885 0 : 1029
GetIntegerv 2886 0 : 2305
GetIntegerv 2900 0 : 7425
GetIntegerv 2932 0 : 513
GetIntegerv 3009 0 : 519
GetIntegerv 3040 0 : 0
GetIntegerv 3041 0 : 1
GetIntegerv 32873 0 : 0
GetIntegerv 3379 0 : 256
GetIntegerv 34018 0 : 2
GetIntegerv 2976 0 : 5888
GetIntegerv 2981 0 : 1
GetIntegerv 3333 0 : 4
GetIntegerv 32904 0 : 4
GetFixedv 2931 0 : 65536
GetPointerv 32914 0 : 0
IsEnabled 32888 : 0
IsEnabled 3024 : 1
IsEnabled 3553 : 0
GetIntegerv 2978 0 : 0 0 5 3
GetIntegerv 3088 0 : 0 0 5 3
GetFixedv 2816 0 : 65536 65536 65536 65536
GetFixedv 3106 0 : 0 0 0 0
";

#[test]
fn a_new_context_is_as_the_tables_say(rt: HostRuntime) -> Result<(), Fail> {
    let private = Private::new(3, 256, 1);
    assert_eq!(rt; private.context(), 3);
    assert_eq!(rt; (private.width(), private.height()), (256, 1));
    assert_eq!(rt; private.settings().viewport, [0, 0, 256, 1]);
    assert_eq!(rt; private.settings().scissor, [0, 0, 256, 1]);
    assert_eq!(rt; private.settings().depth_range, [0, 65536]);
    assert_eq!(rt; first_wrong(rt.alloc(), FIRST)?, None);
    Ok(())
}

/// A colour's parts are clamped to 0 to 1 (section 4.2.3). The bounds of a viewport are own: 1024 and 512 pixels.
const SET: &str = "\
ActiveTexture 33985 :
ClientActiveTexture 33985 :
MatrixMode 5890 :
PushMatrix :
EnableClientState 32888 :
TexCoordPointer 2 5122 8 24 :
PixelStorei 3333 8 :
Viewport -1025 1024 513 0 :
Viewport 1 1 1 -1 :
ClearColorx -1 65537 32768 0 :
GetIntegerv 2976 0 : 5890
GetIntegerv 2981 0 : 2
GetIntegerv 3333 0 : 8
GetIntegerv 32904 0 : 2
GetPointerv 32914 0 : 24
IsEnabled 32888 : 1
IsEnabled 3553 : 0
GetIntegerv 2978 0 : -1024 1024 512 0
GetIntegerv 3088 0 : 0 0 5 3
GetFixedv 3106 0 : 0 65536 32768 0
GetIntegerv 2816 0 :
GetFixedv 2976 0 :
GetPointerv 2816 0 :
IsEnabled 2816 :
";

#[test]
fn a_get_tells_what_was_set_and_clamped(rt: HostRuntime) -> Result<(), Fail> {
    assert_eq!(rt; first_wrong(rt.alloc(), SET)?, None);
    Ok(())
}

/// Settings that a get tells, 1280 being INVALID_ENUM. A call with an error sets nothing, and what isn't clamped is as set.
const SETTINGS: &str = "\
AlphaFuncx 516 65537 :
AlphaFuncx 520 5 :
BlendFunc 770 771 :
BlendFunc 0 774 :
ClearDepthx 32768 :
Color4x -1 65537 2147483647 -2147483648 :
CullFace 1028 :
CullFace 2304 :
DepthFunc 515 :
DepthFunc 0 :
FrontFace 2304 :
FrontFace 1028 :
Scissor -2147483648 7 0 2147483647 :
Scissor 1 1 1 -1 :
ShadeModel 7424 :
ShadeModel 7426 :
GetIntegerv 3009 0 : 516
GetIntegerv 3041 0 : 770
GetIntegerv 3040 0 : 771
GetIntegerv 2885 0 : 1028
GetIntegerv 2932 0 : 515
GetIntegerv 2886 0 : 2304
GetIntegerv 2900 0 : 7424
GetFixedv 2931 0 : 32768
GetFixedv 2816 0 : -1 65537 2147483647 -2147483648
GetIntegerv 3088 0 : -2147483648 7 0 2147483647
GetError : 1280
ClearDepthx -1 :
GetFixedv 2931 0 : 0
ClearDepthx 65537 :
GetFixedv 2931 0 : 65536
";

#[test]
fn a_get_tells_each_setting_as_it_was_set(rt: HostRuntime) -> Result<(), Fail> {
    assert_eq!(rt; first_wrong(rt.alloc(), SETTINGS)?, None);
    Ok(())
}

/// The capabilities are 2884, 2929, 3008, 3024, 3042, 3089, and 3553 of the active unit; 33985 is TEXTURE1.
const CAPABILITIES: &str = "\
Enable 2884 :
Disable 3024 :
Enable 3553 :
IsEnabled 2884 : 1
IsEnabled 2929 : 0
IsEnabled 3008 : 0
IsEnabled 3024 : 0
IsEnabled 3042 : 0
IsEnabled 3089 : 0
IsEnabled 3553 : 1
ActiveTexture 33985 :
IsEnabled 3553 : 0
Enable 2929 :
Enable 3008 :
Enable 3042 :
Enable 3089 :
Enable 3553 :
ActiveTexture 33984 :
Disable 3553 :
Disable 2884 :
Enable 32884 :
IsEnabled 2884 : 0
IsEnabled 2929 : 1
IsEnabled 3008 : 1
IsEnabled 3024 : 0
IsEnabled 3042 : 1
IsEnabled 3089 : 1
IsEnabled 3553 : 0
IsEnabled 32884 : 0
ActiveTexture 33985 :
IsEnabled 3553 : 1
GetError : 1280
";

#[test]
fn a_capability_is_on_from_enable_to_disable(rt: HostRuntime) -> Result<(), Fail> {
    assert_eq!(rt; first_wrong(rt.alloc(), CAPABILITIES)?, None);
    Ok(())
}

/// Settings that no get tells.
const UNTOLD: &str = "\
AlphaFuncx 516 65537
DepthRangex 65537 -1
ColorMask 1 0 0 1
DepthMask 0
Normal3x -1 65537 3
MultiTexCoord4x 33985 -1 2 65537 -2147483648
MultiTexCoord4x 33986 1 1 1 1
";

// The depths and the reference are clamped to 0 to 1 (sections 2.10.1 and 4.1.4), and 33986 is no unit.
#[test]
fn what_no_get_tells_is_kept(rt: HostRuntime) -> Result<(), Fail> {
    let memory = ClientMemory::new(rt.alloc(), 0)?;
    let mut private = Private::new(0, 5, 3);
    let mut objects = Objects::new(rt.alloc());
    for spelling in UNTOLD.lines() {
        let Some(call) = call_spelled(spelling) else {
            return Err(Fail::new("no such call"));
        };
        replies(rt.alloc(), &mut private, &mut objects, &call, &memory, &[])?;
    }
    let settings = private.settings();
    assert_eq!(rt; settings.alpha_reference, 65536);
    assert_eq!(rt; settings.depth_range, [65536, 0]);
    assert_eq!(rt; settings.colour_mask, [true, false, false, true]);
    assert!(rt; !settings.depth_mask);
    assert_eq!(rt; settings.normal, [-1, 65537, 3]);
    assert_eq!(rt; settings.coordinates[0], [0, 0, 0, 65536]);
    assert_eq!(rt; settings.coordinates[1], [-1, 2, 65537, -2147483648]);
    Ok(())
}

// INVALID_VALUE and STACK_UNDERFLOW, as section 4.3.1 and section 2.10.2 say. 2976 and 2978 are
// MATRIX_MODE, which is tracked, and VIEWPORT, which isn't; so are 32884 and 3024, VERTEX_ARRAY and
// DITHER.
#[test]
fn a_plan_has_all_that_is_found_of_a_call(rt: HostRuntime) -> Result<(), Fail> {
    let private = Private::new(0, 4, 4);
    let rows: [(&str, Plan); 28] = [
        ("Clear 16640", Plan::Draw),
        ("DrawElements 4 3 5121 0", Plan::Draw),
        ("BindBuffer 34962 0", Plan::Ask),
        (
            "BufferData 34962 1 0 35044",
            Plan::Fault(GlError::InvalidOperation),
        ),
        ("IsTexture 1", Plan::Ask),
        ("DrawArrays 4 0 65536", Plan::Draw),
        ("DrawArrays 4 0 65537", Plan::Fault(GlError::InvalidValue)),
        ("LoadMatrixx 0", Plan::Local),
        ("ReadPixels 0 0 512 1 6408 5121 0", Plan::Read),
        (
            "ReadPixels 0 0 513 1 6408 5121 0",
            Plan::Fault(GlError::InvalidValue),
        ),
        ("Clear 1", Plan::Fault(GlError::InvalidValue)),
        ("PopMatrix", Plan::Fault(GlError::StackUnderflow)),
        ("GetError", Plan::Query),
        ("GetIntegerv 2976 0", Plan::Known(5888)),
        ("GetIntegerv 2978 0", Plan::Query),
        ("IsEnabled 32884", Plan::Known(0)),
        ("IsEnabled 3024", Plan::Query),
        ("GetPointerv 32910 0", Plan::Known(0)),
        ("GetPointerv 32880 0", Plan::Fault(GlError::InvalidEnum)),
        ("LoadIdentity", Plan::Local),
        ("TexEnvi 8960 8704 7681", Plan::Local),
        ("TexEnvi 8960 8704 7682", Plan::Fault(GlError::InvalidEnum)),
        ("TexEnvxv 8960 8705 0", Plan::Local),
        ("TexImage2D 3553 0 6407 2 2 0 6407 5121 0", Plan::Ask),
        (
            "TexImage2D 3553 0 6408 2 2 0 6407 5121 0",
            Plan::Fault(GlError::InvalidOperation),
        ),
        ("TexParameteri 3553 10241 9728", Plan::Ask),
        ("TexSubImage2D 3553 0 0 0 256 0 6407 5121 0", Plan::Ask),
        (
            "TexSubImage2D 3553 0 0 0 257 0 6407 5121 0",
            Plan::Fault(GlError::InvalidValue),
        ),
    ];
    for (spelling, plan) in rows {
        let Some(call) = call_spelled(spelling) else {
            return Err(Fail::new("no such call"));
        };
        assert_eq!(rt; private.plan(&call), plan);
    }
    Ok(())
}

/// Calls of textures, and the errors that they and their events leave; 1280, 1281 and 1282 are INVALID_ENUM, INVALID_VALUE and
/// INVALID_OPERATION. A side of 33 is that of no image, and a part neither lies outside its image nor has another format.
const IMAGES: &str = "\
TexSubImage2D 3553 0 0 0 1 1 6407 5121 0 :
GetError : 1282
TexImage2D 3553 0 6407 4 4 0 6407 5121 0 :
GetError : 0
TexSubImage2D 3553 0 3 3 1 1 6407 5121 0 :
GetError : 0
TexSubImage2D 3553 0 3 3 2 1 6407 5121 0 :
GetError : 1281
TexSubImage2D 3553 0 0 0 1 1 6408 5121 0 :
GetError : 1282
TexSubImage2D 3553 0 0 -1 1 1 6407 5121 0 :
GetError : 1281
TexImage2D 3553 0 6407 33 32 0 6407 5121 0 :
GetError : 1281
TexImage2D 3553 0 6407 4 4 0 6408 5121 0 :
GetError : 1282
TexImage2D 3552 0 6407 4 4 0 6407 5121 0 :
GetError : 1280
TexParameteri 3553 10240 9728 :
GetError : 0
TexParameteri 3553 10240 9984 :
GetError : 1280
TexEnvi 8960 8705 7681 :
GetError : 1280
TexEnvxv 8960 8704 0 :
GetError : 1280
";

#[test]
fn a_call_of_textures_records_its_error_or_that_of_its_event(rt: HostRuntime) -> Result<(), Fail> {
    assert_eq!(rt; first_wrong(rt.alloc(), IMAGES)?, None);
    Ok(())
}

// By hand: 65537 and -1 are clamped to 1 and 0, and unit 0 keeps its environment.
#[test]
fn an_environment_is_that_of_the_active_unit(rt: HostRuntime) -> Result<(), Fail> {
    let mut memory = ClientMemory::new(rt.alloc(), 64)?;
    memory.write(
        8,
        &[1, 0, 1, 0, 255, 255, 255, 255, 0, 128, 0, 0, 0, 0, 1, 0],
    );
    let mut private = Private::new(0, 2, 2);
    let mut objects = Objects::new(rt.alloc());
    for spelling in "ActiveTexture 33985\nTexEnvi 8960 8704 7681\nTexEnvxv 8960 8705 8".lines() {
        let Some(call) = call_spelled(spelling) else {
            return Err(Fail::new("no such call"));
        };
        replies(rt.alloc(), &mut private, &mut objects, &call, &memory, &[])?;
    }
    let settings = private.settings();
    assert_eq!(rt; settings.environment_mode, [0x2100, 7681]);
    assert_eq!(rt;
        settings.environment_colour,
        [[0; 4], [65536, 0, 32768, 65536]]
    );
    Ok(())
}

/// Memory has 1 and 2 at address 0. 34962 and 34963 are the targets of buffers, 34964 and 34965 tell what is bound to them,
/// and 32873 what is bound in the active unit.
const NAMES: &str = "\
GenBuffers 2 32 : 1 2
IsBuffer 1 : 0
BindBuffer 34962 2 :
BindBuffer 34963 7 :
IsBuffer 2 : 1
IsBuffer 7 : 1
GetIntegerv 34964 48 : 2
GetIntegerv 34965 48 : 7
BindTexture 3553 3 :
ActiveTexture 33985 :
GetIntegerv 32873 48 : 0
BindTexture 3553 2 :
GetIntegerv 32873 48 : 2
IsTexture 2 : 1
DeleteTextures 2 0 :
IsTexture 2 : 0
GetIntegerv 32873 48 : 0
ActiveTexture 33984 :
GetIntegerv 32873 48 : 3
GenTextures 3 32 : 1 2 4
DeleteBuffers 2 0 :
IsBuffer 2 : 0
IsBuffer 0 : 0
GetIntegerv 34964 48 : 0
GetIntegerv 34965 48 : 7
BufferData 34962 4 0 35044 :
GetError : 1282
BufferData 34963 4 0 35044 :
BufferSubData 34963 2 3 0 :
GetError : 1281
BufferSubData 34963 1 3 0 :
GetError : 0
GenBuffers 257 0 :
GetError : 1281
BindTexture 33984 1 :
GetError : 1280
";

#[test]
fn a_deleted_name_is_bound_nowhere_and_that_of_no_object(rt: HostRuntime) -> Result<(), Fail> {
    let mut memory = ClientMemory::new(rt.alloc(), 64)?;
    memory.write(0, &[1, 0, 0, 0, 2, 0, 0, 0]);
    assert_eq!(rt; first_wrong_on(rt.alloc(), &memory, NAMES)?, None);
    Ok(())
}
