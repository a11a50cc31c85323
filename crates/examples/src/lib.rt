// The paper's examples and printed tables, and the desk's lines, held against the definitions: see specs/.
#![tactic(auto)]
