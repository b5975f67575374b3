// The numbers for nobody and for what is not refused, under the names that specs/ has for them.

// Nobody is granted.
// Kept: a number and no Option, since the granted card of a state may be any number, and a free bus has FF there (`FreeBusBegins`).
pub const NOBODY: u8 = 0xFF;

// What an answer has in place of a refusal's number.
pub const ACCEPTED: u8 = 0x00;
