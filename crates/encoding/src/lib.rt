// Laws of encodings: numbers as bytes, items at a stride, padding, replaced bytes.
#![tactic(auto)]
