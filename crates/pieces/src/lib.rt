#![tactic(auto)]

// What the printing run prints of an input that comes in pieces: definitions and a theorem; `panel` plays a piece.
