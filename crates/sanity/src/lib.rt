// What a reviewer would try on the definitions that the contracts cite, as theorems; no code. Strength 0: StrengthZero. Equal frames: StillMerge,
// StillAlign, StillRun. A tile that moves: Moved. Another order of the frames: Renumbered, Shuffled. Black levels: Pedestal. Flat frames and document 01's figure: FlatMerge,
// FlatAlign, FlatFigure. What they say of accepted calls: Calls.
#![tactic(auto)]
