// What text is.
ghost use Rattle.texts.specs.Characters.{Utf8IsText};

// Bytes are UTF-8 exactly when they are characters one behind the other, each spelled by the bits of its number.
pub fn utf8_is_text()
    ensures { Utf8IsText }
{}
