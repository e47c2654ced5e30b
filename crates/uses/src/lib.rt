// Descriptions that use others, and the walk along their uses: definitions, laws and a number (document 02, 2026-02).
#![tactic(auto)]

// The target of a use whose name no description has.
pub const NO_TARGET: u8 = 255;
