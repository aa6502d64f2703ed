// The transform of a line of sixteen numbers in halfcomplex form, and the sums back from it, by the rounded tables of document 01:
// definitions and laws, and the cosines as numbers.
pub mod sixteen;
pub mod thirty_two;
