// No code: definitions and theorems of tile runs whose one tile covers the board.
#![tactic(auto)]
