// Sizes, counts, the reference, the side and the row length: refusals 1 to 3, 22 and 23.
#![tactic(auto)]

ghost use Rattle.std.specs.Prelude.{◌≡◌};
ghost use Rattle.refusals.specs.Refused.{answer_of};
ghost use Rattle.geometry.specs.Shape.{size_allowed, size_refusal, count_refusal, reference_refusal, side_allowed, side_refusal, row_refusal};

use geometry::Shape;
use refusals::{Refusal, refuse};

// Widths and heights are multiples of 64.
const SIZE_STEP: usize = 64;

const SIZE_MOST: usize = 4096;

// A width or height that is let through.
#[tactic(auto, unfolding(geometry::specs::Shape::size_allowed))]
pub fn size_allowed(size: usize) -> bool
    ensures { result ≡ size_allowed size }
{
    SIZE_STEP <= size && size <= SIZE_MOST && size % SIZE_STEP == 0
}

// Refusal 1.
#[tactic(auto, unfolding(geometry::specs::Shape::size_refusal))]
pub fn size_refusal(shape: Shape) -> Result<(), Refusal>
    ensures { answer_of result ≡ size_refusal shape }
{
    refuse(
        Refusal::Size,
        !(size_allowed(shape.width) && size_allowed(shape.height)),
    )
}

const COUNT_MOST: usize = 8;

// Refusal 2.
#[tactic(auto, unfolding(geometry::specs::Shape::count_refusal, geometry::specs::Shape::count_allowed))]
pub fn count_refusal(shape: Shape) -> Result<(), Refusal>
    ensures { answer_of result ≡ count_refusal shape }
{
    refuse(
        Refusal::Count,
        !(1 <= shape.count && shape.count <= COUNT_MOST),
    )
}

// Refusal 3.
#[tactic(auto, unfolding(geometry::specs::Shape::reference_refusal))]
pub fn reference_refusal(shape: Shape, reference: usize) -> Result<(), Refusal>
    ensures { answer_of result ≡ reference_refusal shape reference }
{
    refuse(Refusal::Reference, reference >= shape.count)
}

// A side of tiles that is let through.
#[tactic(auto, unfolding(geometry::specs::Shape::side_allowed))]
pub fn side_allowed(side: usize) -> bool
    ensures { result ≡ side_allowed side }
{
    side == 16 || side == 32
}

// Refusal 22.
#[tactic(auto, unfolding(geometry::specs::Shape::side_refusal))]
pub fn side_refusal(shape: Shape) -> Result<(), Refusal>
    ensures { answer_of result ≡ side_refusal shape }
{
    refuse(Refusal::Side, !side_allowed(shape.side))
}

// How many words after a row's samples may be spare.
const SPARE_MOST: usize = 256;

// Refusal 23.
#[tactic(auto, unfolding(geometry::specs::Shape::row_refusal, geometry::specs::Shape::row_allowed))]
pub fn row_refusal(shape: Shape) -> Result<(), Refusal>
    ensures { answer_of result ≡ row_refusal shape }
{
    refuse(
        Refusal::RowLength,
        !(shape.width <= shape.pitch && shape.pitch - shape.width <= SPARE_MOST),
    )
}
