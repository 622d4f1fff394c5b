// Laws of the image: its bytes and its contents are two forms of one thing. See `specs/`.
#![tactic(auto)]
