// What the definition of a schema comes to.
ghost use Rattle.schemas.specs.Queues.{SkipsTakeAlike, TakesByPlace};
ghost use Rattle.schemas.specs.Schemas.{AdmitsSchemas};

// The test by which rows are admitted finds exactly the schemas: the preorder listings of sound fields.
pub fn test_finds_schemas()
    ensures { AdmitsSchemas }
{}

// Whichever columns of a message are shown, the same nodes, buffers and counts are taken: a skipped column leaves none behind.
pub fn skips_take_alike()
    ensures { SkipsTakeAlike }
{}

// What a decoder takes from the fronts of the lists is what belongs to its rows by their places.
pub fn takes_by_place()
    ensures { TakesByPlace }
{}
