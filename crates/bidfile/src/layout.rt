ghost use Rattle.bidfile.specs.Layout.{ReadsBack};

// Records that are written one after the other are found again, all of them and nothing else.
pub fn layout_holds()
    ensures { ReadsBack }
{}
