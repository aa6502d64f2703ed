// C(0) to C(7), the cosines of a line of thirty-two.
pub const C0: f64 = 16384.0;

pub const C1: f64 = 16069.0;

pub const C2: f64 = 15137.0;

pub const C3: f64 = 13623.0;

pub const C4: f64 = 11585.0;

pub const C5: f64 = 9102.0;

pub const C6: f64 = 6270.0;

pub const C7: f64 = 3196.0;
