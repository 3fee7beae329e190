// Encoding and decoding are each other's way back (02, W8): theorems alone.
#![tactic(auto)]
