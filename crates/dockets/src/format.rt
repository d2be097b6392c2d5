// What is proved of the format, each theorem on the contract of a small function.
ghost use Rattle.dockets.specs.Theorems.{DecodingUndoesEncoding, EncodingUndoesDecoding, PlacesHaveOneOutcome};

// What is written of an entry, at any place of any docket, is read as that entry.
pub fn decoding_undoes_encoding()
    ensures { DecodingUndoesEncoding }
{}

// A line that is read is its entry as it is written, byte for byte.
pub fn encoding_undoes_decoding()
    ensures { EncodingUndoesDecoding }
{}

// At each place of every docket there is a line or a first fault, never both, and only one fault.
pub fn every_place_has_one_outcome()
    ensures { PlacesHaveOneOutcome }
{}
