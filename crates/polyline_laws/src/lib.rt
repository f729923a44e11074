// Laws of points texts: the grammar and the judge's stages agree, the place of TEXT is the first byte that no text of the form has there, each code is given exactly when its table gives it, and export and import undo each other. Laws only.
#![tactic(auto)]
