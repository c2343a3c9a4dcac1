// Whole numbers of either sign: their laws, a normaliser for polynomials, order, and weighted means. Mathematics only: no code.
#![tactic(auto)]
