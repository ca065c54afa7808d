//! Sines and cosines of angles in degrees (16.16 fixed).

ghost use Rattle.std.specs.Prelude.{◌≡◌, ◌≤◌, ◌<◌, ◌^◌};
ghost use Rattle.fixed_transform.specs.Fixed.{IsWithin};
ghost use Rattle.fixed_transform.specs.Angle.{angle_of, cosine, half_sine, sine};

/// 180 degrees.
const HALF_TURN: u64 = 11796480;

/// The sine of an angle of 0 to 180 degrees, from 0 to 65536.
fn half_sine(angle: u64) -> u64
    requires { angle ≤ 11796480 }
    ensures value { result ≡ half_sine angle }
    ensures near { result ≤ 65536 }
{
    let product = angle * (HALF_TURN - angle);
    65536 * (4 * product) / (173946175488000 - product)
}

/// The sine of an angle of 0 to 360 degrees, from -65536 to 65536.
pub fn sine(angle: u64) -> i32
    requires { angle ≤ 23592960 }
    ensures value { result ≡ sine angle }
    ensures near { IsWithin (2 ^ 16) result }
{
    if angle <= HALF_TURN {
        half_sine(angle) as i32
    } else {
        -(half_sine(angle - HALF_TURN) as i32)
    }
}

/// The cosine of an angle of 0 to 360 degrees, from -65536 to 65536.
pub fn cosine(angle: u64) -> i32
    requires { angle ≤ 23592960 }
    ensures value { result ≡ cosine angle }
    ensures near { IsWithin (2 ^ 16) result }
{
    sine((angle + 5898240) % 23592960)
}

/// An angle within the first turn.
pub fn angle_in_turn(angle: i32) -> u64
    ensures value { result ≡ angle_of angle }
    ensures within { result < 23592960 }
{
    angle.rem_euclid(23592960) as u64
}
