//! Laws over the definitions: functions that do nothing, whose contracts are the laws.

ghost use Rattle.fixed_transform.specs.Laws.{FloorIsGreatest, RootIsGreatest};

/// What is called a floor is the greatest whole number that is at most the exact quotient, for divisors of both signs. Own.
pub fn floor_law(a: i64, b: i64)
    ensures { FloorIsGreatest a b }
{}

/// What is called a root is the greatest number whose square is at most n. Own.
pub fn root_law(n: u64)
    ensures { RootIsGreatest n }
{}
