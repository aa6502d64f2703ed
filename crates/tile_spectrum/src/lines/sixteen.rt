// C(0) to C(3), the cosines of a line of sixteen.
pub const C0: f64 = 16384.0;

pub const C1: f64 = 15137.0;

pub const C2: f64 = 11585.0;

pub const C3: f64 = 6270.0;
