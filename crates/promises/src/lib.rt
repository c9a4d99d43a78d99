// What the customer is promised of the public calls: each promise a type in specs/, all of them in one record, and one
// term that proves it. No code.

#![tactic(auto)]
