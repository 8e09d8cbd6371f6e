// A law of columns.
ghost use Rattle.columns.specs.Fits.{ReadWhenTheyFit};

// Columns are read without a refusal exactly when each row, by its place, has what it takes, and each entry keeps its rules.
pub fn columns_are_read_when_they_fit()
    ensures { ReadWhenTheyFit }
{}
