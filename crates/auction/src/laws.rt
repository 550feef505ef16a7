ghost use Rattle.auction.specs.Promise.{LawsOverCalls};

// The laws over every list of calls, of every auction that can be opened, over any curve and any tie order that keep their laws. The
// function does nothing: its promise is a theorem.
pub fn laws_hold()
    ensures { LawsOverCalls }
{}
