// Worked examples of the image, on one contract.
ghost use Rattle.card_image.specs.Examples.{WorkedImages};

// That the definitions give the worked examples; the answer itself says nothing.
pub fn worked_images_hold() -> bool
    ensures examples { WorkedImages }
{
    true
}
