//! What the definitions of the haggling say, as contracts of functions without a body.
ghost use Rattle.nm_haggle.specs.Laws.{NoOptionBeginsAnother, OneResponse, OneAnswer, SomeResponse};
ghost use Rattle.nm_haggle.specs.Laws.{SomeAnswer, GoesOn, GoesOnOnlySo, EndsThere, HoweverCut};
ghost use Rattle.nm_haggle.specs.Laws.{OverAfterAnEnd, InformationAddsUp, OnlyInformationAddsUp};

/// Bytes begin with at most one option, and the bytes after it are the same.
pub fn no_option_begins_another()
    ensures { NoOptionBeginsAnother }
{}

/// A text has at most one answer and one end, from the start and in each state.
pub fn one_answer()
    ensures in_each_state { OneResponse }
    ensures of_a_whole_text { OneAnswer }
{}

/// A text of bytes has an answer and an end, from the start and in each state that is not over.
pub fn some_answer()
    ensures in_each_state { SomeResponse }
    ensures of_a_whole_text { SomeAnswer }
{}

/// Where a text asks for more, what follows it is answered from the state that it led to.
pub fn goes_on()
    ensures so { GoesOn }
    ensures only_so { GoesOnOnlySo }
{}

/// The haggling is over after a text exactly where the text does not ask for more.
pub fn over_after_an_end()
    ensures { OverAfterAnEnd }
{}

/// Where a text begins transmission or closes the session, what follows it changes nothing.
pub fn ends_there()
    ensures { EndsThere }
{}

/// However a text is cut into pieces, the pieces' answers in a row are the answer to the whole, and
/// it ends with the last piece.
pub fn however_cut()
    ensures { HoweverCut }
{}

/// The lengths in the data of INFO and GO add up exactly where the data are a name after its length
/// and information types after their count.
pub fn lengths_add_up()
    ensures so { InformationAddsUp }
    ensures only_so { OnlyInformationAddsUp }
{}
