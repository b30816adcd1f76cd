//! Laws of the format.
ghost use Rattle.rv_image.specs.Laws.{SpelledIsRead, ReadIsSpelled, OneImage, GoesOn};

/// The spelling of an image is read as that image: what was written is read again.
pub fn spelled_is_read()
    ensures { SpelledIsRead }
{}

/// What is read keeps the rules, and is spelled so.
pub fn read_is_spelled()
    ensures { ReadIsSpelled }
{}

/// No two images have one spelling.
pub fn one_image()
    ensures { OneImage }
{}

/// Where bytes follow the spelling of an image, the first of them is refused.
pub fn goes_on()
    ensures { GoesOn }
{}
