// Laws of a viewer's part of an image: nothing else is seen, and a visible name's freeze is everyone's. See `specs/`.
#![tactic(auto)]
