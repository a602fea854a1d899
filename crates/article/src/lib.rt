// Article 7204 of the Bourse de Montréal, Group XI paragraphs 2, 3 and 4: what margin a long and a short need as a pair.
#![tactic(auto)]

pub mod pair;
